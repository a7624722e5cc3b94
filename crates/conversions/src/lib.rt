// A book of any version as any other: definitions, and that no call answers otherwise on it. No code.
#![tactic(auto)]
