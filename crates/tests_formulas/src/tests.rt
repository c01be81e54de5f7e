// The tests, a file for each concept.
mod ast;
mod lex;
mod parse;
