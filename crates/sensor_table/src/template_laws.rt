//! The law that a template is a table of its algorithm.
ghost use Rattle.sensor_table.specs.Template.{ReadsBack};

/// Read as a sensor table of the same algorithm, the template gives one reaction, in which each element of
/// each sensor is 0.
pub fn templates_read_back()
    ensures { ReadsBack }
{}
