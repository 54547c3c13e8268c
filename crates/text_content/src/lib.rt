// What a JSON text stands for: its content, its faults and its canonical form. There is no code, only definitions and laws.
#![tactic(auto)]
