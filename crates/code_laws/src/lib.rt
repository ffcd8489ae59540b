//! The laws of reading back: what `macro_code` prints is read as the same program.
//!
//! They speak of what `macro_code` says that a text gives, so that they hold of `code_reader`, which returns just that.
//! Each is the contract of a function that does nothing.
#![tactic(auto)]

ghost use Rattle.code_laws.specs.ReadsBack.{BuiltReadBack, DescribedReadBack, WellFormedReadBack};

/// The text of a program that is well formed for a valid flat graph and a valid architecture, whose operators
/// and media have names, says this program, where it is within the limits of a program. A text names
/// operations, operators, media, buffers and pairs; that the flat graph and the architecture are valid makes
/// these names tell what they name, and that the program is well formed has each declared where it is named,
/// and each buffer of one element at least. The limits are the same that a reader of texts refuses for.
pub fn well_formed_read_back()
    ensures { WellFormedReadBack }
{}

/// So does the text of the program that is built from a valid schedule, where the buffers between sequences
/// have 1 to 4 places.
pub fn built_read_back()
    ensures { BuiltReadBack }
{}

/// And where a text describes the architecture, which is then valid, with 1 to 4 places and with names.
pub fn described_read_back()
    ensures { DescribedReadBack }
{}
