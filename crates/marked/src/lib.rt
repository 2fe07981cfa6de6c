// The theorem about `shelfmarks`: what is written of each row is its mark and the line that came in, and the four counts are those of the lines.
// specs/Marked says it, proofs/Marked proves it of every accepted input, proofs/Begins of the place at which an answer begins. There are no functions.
#![tactic(auto)]
