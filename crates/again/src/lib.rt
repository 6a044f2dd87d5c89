// Trimming a trimmed block (document 02, 2.2), of the entry `trim` (specs/Calls) and of what `answer` prints (specs/Texts): what a call on
// an earlier call's circuit replies and leaves. proofs/Laws states the theorems; that of the statement alone is in `trimmed`. No code.

#![tactic(auto)]
