// What verification accepts is what the signer issues. The functions here do nothing: their contracts are the
// theorems, and specs/ says each in full.
#![tactic(auto)]

ghost use Rattle.acceptance.specs.Limits.{LimitsNeverRefuse};
ghost use Rattle.acceptance.specs.Issuing.{IssuedIsAccepted, AcceptedIsAlwaysIssued};

/// Under a key's form the limits on s and u refuse nothing whose squared length is at most L.
pub fn limits_kept()
    ensures { LimitsNeverRefuse }
{}

/// A signature that a key makes of a sample is accepted under its form, with the sample's squared length.
pub fn issued_is_accepted()
    ensures { IssuedIsAccepted }
{}

/// An accepted signature is issued for exactly two samples, each the other's negative, and a refused one for none.
pub fn accepted_is_issued()
    ensures { AcceptedIsAlwaysIssued }
{}
