// Document 01's starred lines: the table is specs/Table.antt, the theorem over it proofs/Starred.antt.
#![tactic(auto)]
