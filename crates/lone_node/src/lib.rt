// A node alone on its bus: the promise that it stays on. The statements are in specs/; nothing here runs.
#![tactic(auto)]
