// The tests, a file for each concept.
mod arrays;
mod calls;
mod funs;
mod interning;
mod lift;
mod scalar;
mod value;
mod values;
