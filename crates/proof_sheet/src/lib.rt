// The proof sheet of document 01: its cases in specs/Cases.antt, as one table and one statement.
#![tactic(auto)]
