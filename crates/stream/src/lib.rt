// The left-to-right reading of a stream, over any format of messages: what it takes, what stays pending, what a call uses. It has no code.
#![tactic(auto)]
