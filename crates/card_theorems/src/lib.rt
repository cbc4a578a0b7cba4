// What holds of cards: statements in specs/, no code.

#![tactic(auto)]
