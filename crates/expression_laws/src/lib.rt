// No code: specs/ has what the functions of `expression` ensure, proofs/ the laws that prove it.
#![tactic(auto)]
