// Two ends of a tunnel: what they hold after their lists went both ways, and so what comes out at the other end. There is no function here: the
// theorems are about the contracts of `exchange` and the definitions of `tunnel`, and `demands` says them again.
#![tactic(auto)]
