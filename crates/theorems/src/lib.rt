// Theorems over Catalogue, Rank and Check together. No code.
// catalogue_and_rank   (specs) none missing, none twice, none fewer. Start at Theorems.antt
// worked_entries       (specs) document 01's worked entries as one proved table
#![tactic(auto)]
