// Theorems about the answers of a call file and the length of its sheet: no code.
