// Nothing runs here: the theory of spaces over two elements.
// Not in the source.
#![tactic(auto)]
