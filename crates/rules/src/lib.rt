// When a step follows by a rule of 6 to 28 from its premises, as one test on judgements. Definitions and laws alone; there is no code.
#![tactic(auto)]
