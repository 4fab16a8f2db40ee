// Laws of a forecast: what its tests say where they pass, where it stops, and that the copies go the live river's way. No code.
#![tactic(auto)]
