// Laws only: what is cut and framed, fed to a fresh collector, is reported whole. See specs/ and proofs/.

#![tactic(auto)]
