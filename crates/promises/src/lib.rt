// What is promised of the reader, the desk, the tape and its replay, for an auditor: nothing here runs. The words of the promises and the
// cases stand in specs/, the theorems in proofs/.
//
// The wrong programs that the requirements rule out by name, and the must-fail edits that show that each breaks a promise:
// a desk that refuses everything          desk_rules/must-fail/refuses_everything
// one that always says 80 00 00           desk_rules/must-fail/always_replies
// one that does nothing at an end         desk_rules/must-fail/nothing_at_an_end
// one that books only the first payment   desk_rules/must-fail/first_payment_only
// a reader with an invented object count  zvt_rules/must-fail/count_constant, count_without_inner

#![tactic(auto)]
