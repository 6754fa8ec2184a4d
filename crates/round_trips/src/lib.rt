// Files as text: what is printed is read back, and nothing else is accepted. No code.
// formulae   (specs) a formula's file
// problems   (specs) a problem's file
#![tactic(auto)]
