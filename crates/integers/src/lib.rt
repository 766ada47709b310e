// The laws on ℤ that the tactic `omega` lacks (specs/Parts.antt), and on tables (specs/Tables.antt).
#![tactic(auto)]
