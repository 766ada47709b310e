// Calls on a running tape, one after another (document 02, "From the tape drive"): definitions and laws in specs/.
#![tactic(auto)]
