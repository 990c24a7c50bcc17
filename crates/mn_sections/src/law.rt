//! The law that the sections of an instance say the instance. The function does nothing.
ghost use Rattle.mn_sections.specs.Law.{InstancesAreSaid};

/// The sections of a lawful instance are lawful, and say no more and no less than the instance.
pub fn instances_are_said()
    ensures { InstancesAreSaid }
{}
