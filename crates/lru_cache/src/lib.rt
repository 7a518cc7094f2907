// A cache with several ways and least-recently-used replacement: its definitions and their laws. It has no code.
#![tactic(auto)]
