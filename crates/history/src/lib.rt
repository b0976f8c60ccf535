// No code: the definitions of the calls on a volume, which their contracts cite, are in specs/, with the theorem about every history of a
// volume (demand 3), which is proved here over those definitions, before any call.

#![tactic(auto)]
