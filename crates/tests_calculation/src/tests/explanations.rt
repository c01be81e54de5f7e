// The tests of certificates: what is found, and what is said of changed ones.
mod certificates;
mod chains;
mod changes;
mod large;
mod others;
mod parts;
mod shows;
