// Document 01 as it was before any change of document 02: its boards, and what its four calls answer. It has no code.
#![tactic(auto)]
