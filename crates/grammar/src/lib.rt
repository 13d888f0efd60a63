//! Grammars whose choices one token decides: what they derive, how they are read, and the laws of both.
#![tactic(auto)]
