#![tactic(auto)]
// Books of routines: which refusal a book is told, what showing a routine gives, what an accepted book is, and the theory of these.
// Document 01, "The book" and "Turned down because of the input". There is no code here; `reading` reads books.
