// The tests, a file for each concept.
mod changes;
mod differences;
mod grant;
mod plane;
mod port;
mod support;
