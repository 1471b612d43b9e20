//! How the machine goes between two calls of the evaluator's cycle, and what its parts rely on: definitions and
//! lemmas alone, which need none of its functions and are proved beside what the cycle waits for.
#![tactic(auto)]
