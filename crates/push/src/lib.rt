// Change notifications: which list a session is sent, and its octets.
#![tactic(auto)]
