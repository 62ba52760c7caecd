//! Laws of places, for sorts, values and cells of any kind: where the contents of a program's variables and the cells of an image
//! show one another, they do so after each read, store, copy and making of an object.
#![tactic(auto)]
