#![tactic(auto)]

// The starred examples. Its definitions are in specs/; nothing runs here.
