// Statements about the order of merging (change request 13). No code.
