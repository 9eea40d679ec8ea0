// Walks on any state: definitions in specs/Walk.antt, laws in proofs/Orbit.antt. No code.
#![tactic(auto)]
