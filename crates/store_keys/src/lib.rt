// The keys that an image defines, and when two images clash: definitions and laws only.
#![tactic(auto)]
