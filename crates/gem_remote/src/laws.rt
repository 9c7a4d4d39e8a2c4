//! What ties the remote commands to `gem_shapes`: the parameters that it reads are those that they judge.

ghost use Rattle.gem_remote.specs.Laws.{ParametersAreRead};

/// What `gem_shapes` hands on as the second part of S2F41 is what [`crate::Remote::command`] is made for: a list of
/// pairs of CPNAME and CPVAL.
pub fn parameters_are_read()
    ensures { ParametersAreRead }
{}
