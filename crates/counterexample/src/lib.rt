// What makes a basic statement on state sets untrue: an action and a state. Definitions and laws alone; there is no code.
#![tactic(auto)]
