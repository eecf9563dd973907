// What holds of every state that the machine reaches, and the three demands of the unlimited machine's own steps.
#![tactic(auto)]
