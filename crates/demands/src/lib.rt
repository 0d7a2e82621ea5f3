// The front door: what the calls of `generator` and of `recogniser` promise together, after any sequence of them. No code.
//
// specs/Run.antt says what a call and a sequence of calls are: nothing but their contracts, with any arguments and answers.
// proofs/Demands.antt states demands 1 to 3 of them; each proof there is one citation. The pages beside it do the work: Made carries
// what is known of the model's calls over to the real ones, Refused has what a refusal leaves, Checks when each is given, FormKept which
// calls keep the form, Room the sentence of that name, Spared what a change leaves number for number.

#![tactic(auto)]
