// The demands: theorems about the definitions that the contracts of the entry points cite, in `specs/Demands.antt`, and the drivers' examples, in
// `specs/Examples.antt`. There is no function here.
#![tactic(auto)]
