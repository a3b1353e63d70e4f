ghost use Rattle.std.specs.Prelude.{◌≡◌, ℕ, List, Ok};
ghost use Rattle.pls_problem.specs.Instance.{IsWithinLimits};
ghost use Rattle.pls_problem.specs.Made.{IsWithinLimits as IsSpecWithinLimits, made};
ghost use Rattle.pls_problem.specs.Reading.{instance};
ghost use Rattle.pls_problem.specs.declared.instance.Instance.{Instance as AnyInstance};
ghost use Rattle.pls_problem.specs.declared.make_spec.MakeSpec.{MakeSpec as Spec};

/// Every instance that a text stands for, or that is made, is within its limits. The contract holds the laws: a call does
/// nothing.
pub fn instance_laws()
    ensures read { (text : List ℕ) (i : AnyInstance) → instance text ≡ Ok i → IsWithinLimits i }
    ensures made { (spec : Spec) → IsSpecWithinLimits spec → IsWithinLimits (made spec) }
{}
