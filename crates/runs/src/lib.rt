// Whole runs of sessions: what every list of calls keeps, and that none shows which of two keys with one form a
// session holds. The functions here do nothing: their contracts are the theorems, and specs/ says each in full.
#![tactic(auto)]

ghost use Rattle.runs.specs.Sealed.{SessionsAreLawful, KeysStayHidden, SessionsAreSealed};

/// Every issued signature is accepted, no hash gets two signatures, and no two hashes are signed with one sample.
pub fn lawful_sessions()
    ensures { SessionsAreLawful }
{}

/// Two keys with one form: the same calls, with U·x for each sample x, show the same.
pub fn hidden_keys()
    ensures { KeysStayHidden }
{}

/// Both, for a session just opened on a key, and that the key's form belongs to exactly 4n keys.
pub fn sealed_sessions()
    ensures { SessionsAreSealed }
{}
