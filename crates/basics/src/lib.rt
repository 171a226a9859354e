// What definitions and proofs above need and no rule of messages says: a choice by a test, lists and what stands in them, lent buffers,
// text. Nothing here runs: the definitions stand in specs/, their laws in proofs/.

#![tactic(auto)]
