// Over lent bytes: what emptying, a step, a batch, the order test and the dock's check answer and leave where a caller lends the tables as
// their image. Definitions and their laws, no code: crates step, batch and dock are proved equal to them.

#![tactic(auto)]
