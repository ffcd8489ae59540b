//! The laws of a picture: that it tells the truth.
ghost use Rattle.chart_picture.specs.Truth.{EachHasOneBar, LanesAreInOrder, NamesNeedNoEscape, WhatLastsIsSeen, WhoTakesReads};

/// Every operation and every transfer of a valid schedule has exactly one bar, and every bar is that of one.
pub fn each_has_one_bar()
    ensures { EachHasOneBar }
{}

/// The bars of each operator and each medium of a valid schedule stand in order, and do not overlap.
pub fn lanes_are_in_order()
    ensures { LanesAreInOrder }
{}

/// Where the length is at most the width, whatever lasts has a bar that is seen.
#[tactic(auto, using(crate::proofs::Places::what_lasts_is_seen))]
pub fn what_lasts_is_seen()
    ensures { WhatLastsIsSeen }
{}

/// The names of operations, of operators and of media need no escape.
pub fn names_need_no_escape()
    ensures { NamesNeedNoEscape }
{}

/// An arrow leads from a transfer to exactly those operations and transfers that read what it brings.
pub fn who_takes_reads()
    ensures { WhoTakesReads }
{}
