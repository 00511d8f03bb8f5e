// The three demands of the project, stated over the public routines, and document 01's worked cases. It has no code: open `specs/` first.
#![tactic(auto)]
