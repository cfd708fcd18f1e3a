#![tactic(auto)]
// Outside orders: what each is told and does to a game, and the theory of both. Document 01, "The game". There is no code here; `ordering`
// gives a game an order.
