//! The laws of denoters.

ghost use Rattle.ep_typed.specs.Laws.{InstancesAreOne, TypesAreInstances};

/// Does nothing: its contract states that what is found for a denoter is its type value, and that it has no other one.
pub fn laws_of_denoters()
    ensures found { TypesAreInstances }
    ensures one { InstancesAreOne }
{}
