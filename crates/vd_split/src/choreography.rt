//! Joint acts of all hosts, and what the acts of a program do.
